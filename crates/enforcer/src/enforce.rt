ghost use Rattle.std.specs.Prelude.{◌≤◌};
ghost use Rattle.property.specs.Sized.{most_size};
ghost use Rattle.rules.specs.Meaning.{Lawful};
ghost use Rattle.rules.specs.Tables.{table_rule};
ghost use Rattle.rules.specs.Valued.{meaning};
ghost use Rattle.enforcer.specs.Enforcement.{Enforcement};
ghost use Rattle.enforcer.specs.Limited.{UnderLimit};

use crate::fault::EnforcerFault;
use guard::runs::{Call, Run, run_calls};
use letters::alphabet::Alphabet;
use rules::cap::Cap;
use rules::table::Table;
use std::alloc::Global;
use synthesis::synthesize::synthesize;

/// How many letters a cycle may have besides its end: as many as the property admits, the number of a cap that is made
/// without one, or at most so many.
#[derive(Clone, Copy, PartialEq, Eq, Debug)]
pub enum Limit {
    Unlimited,
    Standard,
    Letters(u32),
}

/// Makes the calls under the table of the property, with the limit.
fn run_under(heap: Global, rule: Table, limit: Limit, calls: &[Call]) -> Result<Run, EnforcerFault>
    requires lawful { Lawful (meaning table_rule rule) }
    requires few { (meaning table_rule rule).count ≤ most_size }
    ensures { UnderLimit (meaning table_rule rule.entry) limit calls.now result }
{
    // A run in each arm, since the table and a cap over it are rules of two types.
    match limit {
        Limit::Unlimited => Ok(run_calls(heap, &rule, calls)?),
        Limit::Standard => Ok(run_calls(heap, &Cap::standard(rule)?, calls)?),
        Limit::Letters(k) => Ok(run_calls(heap, &Cap::new(rule, k)?, calls)?),
    }
}

/// Makes the table of a property file, starts a guard under it and makes the calls.
pub fn enforce(
    heap: Global,
    file: &[u8],
    limit: Limit,
    table: &mut [u16],
    work: &mut [u16],
    calls: &[Call],
) -> Result<Run, EnforcerFault>
    ensures { Enforcement file.now limit calls.now table.old work.old result table.new work.new }
{
    let mut alphabet = Alphabet::new();
    let rows = synthesize(file, &mut alphabet, table, work)?;
    let rule = Table::new(&alphabet, table, rows)?;
    run_under(heap, rule, limit, calls)
}
