ghost use Rattle.std.specs.Prelude.{◌≡◌, ℕ, ◌<◌, List, length, Some};
ghost use Rattle.property.specs.Nodes.{Choice, branches, node};
ghost use Rattle.property.specs.Sizes.{size};
ghost use Rattle.places.specs.Walks.{target};
ghost use Rattle.synthesis.specs.Courses.{PlaceOf, nodes_of};
ghost use Rattle.synthesis.specs.Members.{Found, FamilyGoesOn, OfFile, OffsetsKept, PartOf, SmallChoice, weight_kept};

use crate::course::Course;
use crate::course::ones::target;
use crate::course::outcomes::shifted;
use letters::alphabet::MOST_LETTERS;
use letters::letter::Letter;
use places::outcome::Outcome;
use property::branches::branches_at;
use property::node::{MOST_NODES, Node};
use property::sizes::weight_of;

impl Course<'_> {
    /// What a node counts in a family: a Choice 1, any other its size.
    fn places_of(&self, m: usize) -> u16
        requires { m < length (nodes_of self.now) }
        ensures { result ≡ weight_kept self.now m }
    {
        weight_of(self.checked.node(m), self.checked.size_at(m))
    }

    /// The first place of each member of the family of `n`.
    #[tactic(auto, using(crate::proofs::Grounding::few_nodes))]
    fn offsets(&self, n: usize) -> [u16; MOST_NODES]
        requires { SmallChoice self.now n }
        ensures { OffsetsKept self.now n result }
    {
        let mut marked = [false; MOST_NODES];
        self.checked
            .nodes
            .mark_family(self.checked.file, n, &mut marked);
        let marks = &marked[..n + 1];
        let mut offsets = [0; MOST_NODES];
        let mut total = 0;
        // By number, since the marks end before the offsets do.
        for (m, is_member) in marks.iter().enumerate() {
            offsets[m] = total;
            if *is_member {
                total += self.places_of(m);
            }
        }
        offsets
    }

    /// The member of the family of `n` that the place belongs to, and its first place.
    #[tactic(auto, using(crate::proofs::Grounding::few_nodes))]
    fn member_at(&self, n: usize, place: u16) -> (usize, u16)
        requires small { SmallChoice self.now n }
        requires inside { place < size (nodes_of self.now) n }
        ensures { Found self.now n place result.0 result.1 }
    {
        let mut marked = [false; MOST_NODES];
        marked[n] = true;
        let mut first = self.checked.size_at(n);
        // By index, since the sweep marks the earlier nodes that a member names as it goes.
        for m in (0..n + 1).rev() {
            if marked[m] {
                first -= self.places_of(m);
                if first <= place {
                    return (m, first);
                }
                self.checked
                    .nodes
                    .mark_named(self.checked.file, m, &mut marked);
            }
        }
        unreachable!()
    }

    /// Where the family goes on that comes to a member.
    #[tactic(auto, using(crate::proofs::Grounding::few_nodes))]
    fn entered(&self, offsets: &[u16; MOST_NODES], m: usize) -> Outcome
        requires { m < length (nodes_of self.now) }
        ensures { FamilyGoesOn self.now offsets.now (Some m) result }
    {
        match self.checked.node(m) {
            Node::Choice(_, _) => Outcome::At(offsets[m]),
            _ => shifted(offsets[m], self.starts[m]),
        }
    }

    /// Where the family goes on by a branch with the letter.
    fn entered_by(&self, offsets: &[u16; MOST_NODES], body: &[u8], letter: Letter) -> Outcome
        requires { OfFile self.now (target (branches body.now) letter) }
        ensures { FamilyGoesOn self.now offsets.now (target (branches body.now) letter) result }
    {
        match target(body, letter) {
            None => Outcome::Dead,
            Some(m) => self.entered(offsets, m),
        }
    }

    /// Where the letters lead from a place of a Choice, if the place is that of a Choice of its family; if not, the
    /// member that the place belongs to, and its first place.
    pub(crate) fn row_of_choice(
        &self,
        n: usize,
        place: u16,
        out: &mut [Outcome; MOST_LETTERS],
    ) -> Option<(usize, u16)>
        requires place { PlaceOf self.now n place }
        requires choice { (bs : List (ℕ × ℕ)) × (node (nodes_of self.now) n ≡ Choice bs) }
        ensures { PartOf self.now n place out.new result }
    {
        let (m, first) = self.member_at(n, place);
        match self.checked.node(m) {
            Node::Choice(start, count) => {
                let offsets = self.offsets(n);
                let body = branches_at(self.checked.file, start, count);
                // By number, as where two nodes' outcomes meet.
                for (j, letter) in self.checked.letters.iter().enumerate() {
                    out[j] = self.entered_by(&offsets, body, *letter);
                }
                None
            }
            _ => Some((m, first)),
        }
    }
}
