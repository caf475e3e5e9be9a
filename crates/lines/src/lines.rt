// The log's text, written into a buffer that the caller lends. Each writer returns the place behind what it wrote. (That there is room
// is of two arguments, the buffer and the place, so it is no type's.)
ghost use Rattle.std.specs.Prelude.{◌∷◌, ◌+◌, ◌≤◌, length};
ghost use Rattle.lines.specs.Lines.{decimal, numbers, line_of, text, net, e, t, stop, end};
ghost use Rattle.lines.specs.code.Writing.{Written};

// By recursion, as many calls as the number has digits: the digits before the last are those of n / 10.
fn put_decimal(out: &mut [u8], at: usize, n: u32) -> usize
    requires { at + length (decimal n) ≤ length out.old }
    ensures { Written out.old at (decimal n) out.new result }
{
    if n < 10 {
        out[at] = b'0' + n as u8;
        return at + 1;
    }
    let last = put_decimal(out, at, n / 10);
    out[last] = b'0' + (n % 10) as u8;
    last + 1
}

// A space and the number.
pub fn put_number(out: &mut [u8], at: usize, n: u32) -> usize
    requires { at + length (32 ∷ decimal n) ≤ length out.old }
    ensures { Written out.old at (32 ∷ decimal n) out.new result }
{
    out[at] = b' ';
    put_decimal(out, at + 1, n)
}

fn put_numbers(out: &mut [u8], at: usize, ns: &[u32]) -> usize
    requires { at + length (numbers ns.now) ≤ length out.old }
    ensures { Written out.old at (numbers ns.now) out.new result }
{
    let mut end = at;
    for n in ns {
        end = put_number(out, end, *n);
    }
    end
}

fn put_word(out: &mut [u8], at: usize, word: &[u8]) -> usize
    requires { at + length word.now ≤ length out.old }
    ensures { Written out.old at word.now out.new result }
{
    out[at..at + word.len()].copy_from_slice(word);
    at + word.len()
}

// A word, its numbers, a line feed.
fn put_line(out: &mut [u8], at: usize, word: &[u8], ns: &[u32]) -> usize
    requires { (at + 40 ≤ length out.old) × (length (line_of word.now ns.now) ≤ 40) }
    ensures written { Written out.old at (line_of word.now ns.now) out.new result }
    ensures upper_bound { result ≤ at + 40 }
{
    let behind_word = put_word(out, at, word);
    let end = put_numbers(out, behind_word, ns);
    out[end] = b'\n';
    end + 1
}

// `net BUSES BRIDGES AGENTS`
pub fn put_net(out: &mut [u8], at: usize, buses: u8, bridges: u8, agents: u8) -> usize
    requires { at + 40 ≤ length out.old }
    ensures written { Written out.old at (text (net buses bridges agents)) out.new result }
    ensures upper_bound { result ≤ at + 40 }
{
    put_line(
        out,
        at,
        b"net",
        &[u32::from(buses), u32::from(bridges), u32::from(agents)],
    )
}

// `e BLOCK RECORD KIND REFUSAL VALUE`. Refusals are numbers in a line: 0 stands where there is none.
pub fn put_e(
    out: &mut [u8],
    at: usize,
    block: u32,
    place: u32,
    kind: u8,
    refusal: u8,
    value: u16,
) -> usize
    requires { at + 40 ≤ length out.old }
    ensures written { Written out.old at (text (e block place kind refusal value)) out.new result }
    ensures upper_bound { result ≤ at + 40 }
{
    put_line(
        out,
        at,
        b"e",
        &[
            block,
            place,
            u32::from(kind),
            u32::from(refusal),
            u32::from(value),
        ],
    )
}

// `t BLOCK REFUSAL RECORD OTHER`; a number, since it is what the line shows.
pub fn put_t(out: &mut [u8], at: usize, block: u32, refusal: u8, first: u8, other: u8) -> usize
    requires { at + 40 ≤ length out.old }
    ensures written { Written out.old at (text (t block refusal first other)) out.new result }
    ensures upper_bound { result ≤ at + 40 }
{
    put_line(
        out,
        at,
        b"t",
        &[
            block,
            u32::from(refusal),
            u32::from(first),
            u32::from(other),
        ],
    )
}

// `stop BLOCK NUMBER`; the same.
pub fn put_stop(out: &mut [u8], at: usize, block: u32, number: u8) -> usize
    requires { at + 40 ≤ length out.old }
    ensures written { Written out.old at (text (stop block number)) out.new result }
    ensures upper_bound { result ≤ at + 40 }
{
    put_line(out, at, b"stop", &[block, u32::from(number)])
}

// `end ENTRIES`
pub fn put_end(out: &mut [u8], at: usize, entries: u32) -> usize
    requires { at + 40 ≤ length out.old }
    ensures written { Written out.old at (text (end entries)) out.new result }
    ensures upper_bound { result ≤ at + 40 }
{
    put_line(out, at, b"end", &[entries])
}
