// What came of a call, compared with the answers that are right.
#![tactic(auto)]

ghost use Rattle.std.specs.Prelude.{◌≡◌, ◌+◌, ◌≤◌, length, drop};
ghost use Rattle.judging.specs.Judging.{up_to, is_one_of, is_right, with_call};

// The number of calls, and the number of those whose answer was not right.
#[derive(Clone, Copy)]
pub struct Progress {
    pub calls: u32,
    pub different: u32,
}

// The first place of a byte, or the end.
fn first_of(bytes: &[u8], byte: u8) -> usize
    ensures within { result ≤ length bytes.now }
    ensures place { result ≡ length (up_to byte bytes.now) }
{
    bytes.iter().position(|b| *b == byte).unwrap_or(bytes.len())
}

// The first place of a byte from another place on, or where none is left.
pub fn place_of(bytes: &[u8], from: usize, byte: u8) -> usize
    ensures place { result ≡ from + length (up_to byte (drop from bytes.now)) }
    ensures within { from ≤ length bytes.now → result ≤ length bytes.now }
{
    from + first_of(&bytes[from.min(bytes.len())..], byte)
}

// Whether what came is one of the answers, which are separated by '|'.
fn is_one_of(came: &[u8], answers: &[u8]) -> bool
    ensures { result ≡ is_one_of came.now answers.now }
{
    answers.split(|b| *b == b'|').any(|answer| came == answer)
}

// Whether what came is right; behind ',' no answers stand.
fn is_right(came: &[u8], should: &[u8]) -> bool
    ensures { result ≡ is_right came.now should.now }
{
    is_one_of(came, &should[..first_of(should, b',')])
}

// One call more, and one difference more where what came is not right.
pub fn with_call(progress: Progress, came: &[u8], should: &[u8]) -> Progress
    ensures { result ≡ with_call progress came.now should.now }
{
    let difference = u32::from(!is_right(came, should));
    Progress {
        calls: progress.calls.wrapping_add(1),
        different: progress.different.wrapping_add(difference),
    }
}
