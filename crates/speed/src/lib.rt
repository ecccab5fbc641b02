//! What `./measure` times from outside: a guard under the capped table of a property file, and synthesis.
#![tactic(auto)]

ghost use Rattle.std.specs.Prelude.{◌≡◌, length};
ghost use Rattle.rules.specs.Valued.{meaning};
ghost use Rattle.guard.specs.Histories.{step};
ghost use Rattle.guard.specs.declared.runs.Guard.TheVariants.{InCycle};
ghost use Rattle.enforcer.specs.Offers.{offered};
ghost use Rattle.speed.specs.Counts.{count_under, Gives, FileCount, CountAnswered, RowsAnswered};

use enforcer::fault::EnforcerFault;
use guard::calls::{Answer, Running, start};
use letters::alphabet::Alphabet;
use letters::letter::{END, Letter};
use rules::cap::Cap;
use rules::rule::Rule;
use rules::table::Table;
use synthesis::synthesize::synthesize;

/// The length of the output of each call.
const OUTPUT_BYTES: usize = 256;

/// Offers a letter to a running guard; begins the next cycle where the letter closes one. Answers the guard and how many
/// letters it wrote.
fn offer<R: Rule>(
    rule: &R,
    mut running: Running,
    letter: Letter,
    out: &mut [Letter],
) -> (Running, usize)
    ensures { Gives (step (meaning R.Rule rule.now) (InCycle running) (offered (length out.old) letter)) result }
{
    if letter == END {
        return match running.close(rule, out) {
            Ok((resting, count)) => (resting.begin(), count),
            Err((running, _)) => (running, 0),
        };
    }
    let count = match running.act(rule, letter, out) {
        Ok(Answer::Passed) => 1,
        Ok(Answer::Dropped) | Err(_) => 0,
    };
    (running, count)
}

/// How many letters a guard under a rule writes where letters are offered to it one after the other, or the largest
/// number where that is larger.
fn count_written<R: Rule>(rule: &R, offers: &[Letter]) -> usize
    ensures { result ≡ count_under (meaning R.Rule rule.now) offers.now }
{
    let mut out = [0; OUTPUT_BYTES];
    let mut running = start(rule).begin();
    let mut count = 0usize;
    for letter in offers {
        let (after, written) = offer(rule, running, *letter, &mut out);
        running = after;
        count = count.saturating_add(written);
    }
    count
}

/// The same under the table of a property file with a cap.
fn count_under_file(
    file: &[u8],
    cap: u32,
    offers: &[Letter],
    table: &mut [u16],
    work: &mut [u16],
) -> Result<usize, EnforcerFault>
    ensures { FileCount file.now cap offers.now table.old work.old result table.new work.new }
{
    let mut alphabet = Alphabet::new();
    let rows = synthesize(file, &mut alphabet, table, work)?;
    let rule = Cap::new(Table::new(&alphabet, table, rows)?, cap)?;
    Ok(count_written(&rule, offers))
}

/// How many letters a guard writes under the table of a property file with a cap, 0 where there is none.
#[unsafe(no_mangle)]
pub extern "C" fn speed_guard(
    file: &[u8],
    cap: u32,
    offers: &[Letter],
    table: &mut [u16],
    work: &mut [u16],
) -> usize
    ensures { CountAnswered file.now cap offers.now table.old work.old result table.new work.new }
{
    count_under_file(file, cap, offers, table, work).unwrap_or(0)
}

/// The rows of a property file's table, 0 where it has none.
#[unsafe(no_mangle)]
pub extern "C" fn speed_synthesis(file: &[u8], table: &mut [u16], work: &mut [u16]) -> usize
    ensures { RowsAnswered file.now table.old work.old result table.new work.new }
{
    let mut alphabet = Alphabet::new();
    synthesize(file, &mut alphabet, table, work).unwrap_or(0)
}
