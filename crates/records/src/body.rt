ghost use Rattle.std.specs.Prelude.{◌≡◌, [], ◌∷◌};
ghost use Rattle.records.specs.Bodies.{number_at, branches_in, branch_at};
ghost use Rattle.records.specs.Records.{two_bytes};

use letters::letter::Letter;

/// The most branches of a Choice.
pub const MOST_BRANCHES: usize = 32;

/// The bytes of a branch: a letter, and a node's number in two bytes.
pub const BRANCH_BYTES: usize = 3;

/// A branch of a Choice: its letter, and the number of the node that it names.
#[derive(Clone, Copy, PartialEq, Eq, Debug)]
pub struct Branch {
    pub letter: Letter,
    pub node: usize,
}

/// The number in two bytes, the lower first.
pub fn two_bytes(low: u8, high: u8) -> usize
    ensures { result ≡ two_bytes (low ∷ high ∷ []) 0 }
{
    usize::from(u16::from_le_bytes([low, high]))
}

/// The number in two bytes of a body, the lower first, or none past its end.
pub fn number(bytes: &[u8], at: usize) -> Option<usize>
    ensures { result ≡ number_at bytes.now at }
{
    match bytes.get(at..)? {
        [low, high, ..] => Some(two_bytes(*low, *high)),
        _ => None,
    }
}

/// How many branches the body of a Choice has.
pub fn branch_count(body: &[u8]) -> usize
    ensures { result ≡ branches_in body.now }
{
    body.len() / BRANCH_BYTES
}

/// The branch of a Choice with this index, or none past the last.
pub fn branch_at(body: &[u8], index: usize) -> Option<Branch>
    ensures { result ≡ branch_at body.now index }
{
    if index >= branch_count(body) {
        return None;
    }
    let at = BRANCH_BYTES * index;
    Some(Branch {
        letter: body[at],
        node: two_bytes(body[at + 1], body[at + 2]),
    })
}
