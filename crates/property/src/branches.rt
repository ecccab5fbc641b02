ghost use Rattle.std.specs.Prelude.{◌≡◌, ◌+◌, ◌*◌, ◌<◌, not, ◌++◌, length, take, drop};
ghost use Rattle.letters.specs.Alphabets.{among, bare};
ghost use Rattle.records.specs.Records.{two_bytes, branch_bytes};
ghost use Rattle.property.specs.Checks.{names, branch_letters};
ghost use Rattle.property.specs.Drafts.{out, first_out};
ghost use Rattle.property.specs.Nodes.{branches, node};
ghost use Rattle.property.specs.Nodes as N;

use letters::alphabet::contains;
use letters::letter::{END, Letter, TICK};
use records::body;
use records::body::BRANCH_BYTES;

/// The number of the node that a branch names.
pub(crate) fn number_of(branch: &[u8]) -> usize
    requires { length branch.now ≡ branch_bytes }
    ensures { result ≡ two_bytes branch.now 1 }
{
    body::two_bytes(branch[1], branch[2])
}

/// Whether a letter is tick or end.
fn is_bare(letter: Letter) -> bool
    ensures { result ≡ among letter bare }
{
    letter == TICK || letter == END
}

/// Whether a letter is in the alphabet of the letters declared.
fn is_known(declared: &[Letter], letter: Letter) -> bool
    ensures { result ≡ among letter (declared.now ++ bare) }
{
    contains(declared, letter) || is_bare(letter)
}

/// Whether a letter may not stand at a branch, where `least` is one above the letter before it.
fn is_out(declared: &[Letter], least: usize, letter: Letter) -> bool
    ensures { result ≡ out (declared.now ++ bare) least letter }
{
    usize::from(letter) < least || !is_known(declared, letter)
}

/// The index of the first branch whose letter is not above the one before, or not in the alphabet.
pub(crate) fn first_out(declared: &[Letter], body: &[u8]) -> Option<usize>
    ensures { result ≡ first_out (declared.now ++ bare) 0 0 (branch_letters (N.Choice (branches body.now))) }
{
    let mut least = 0;
    for (index, branch) in body.chunks_exact(BRANCH_BYTES).enumerate() {
        let letter = branch[0];
        if is_out(declared, least, letter) {
            return Some(index);
        }
        least = usize::from(letter) + 1;
    }
    None
}

/// The bytes of the branches of a Choice, those of them that the file has.
pub fn branches_at(file: &[u8], start: usize, count: usize) -> &[u8]
    ensures { result.now ≡ take (branch_bytes * count) (drop start file.now) }
{
    let rest = file.get(start..).unwrap_or(&[]);
    &rest[..rest.len().min(BRANCH_BYTES.saturating_mul(count))]
}
