// What the type of a lent state says, told as a fact: its arrays are as long as declared.
ghost use Rattle.network.specs.Shapes.{Shaped};

use network::State;

// A proof knows it of a state that is handed over, not of one behind a reference.
fn told_shape(s: State)
    ensures { Shaped s }
{}

// The copy is looked at by no one, so the compiler leaves it out.
pub fn shape_in(s: &State)
    ensures { Shaped s.now }
{
    told_shape(*s)
}
