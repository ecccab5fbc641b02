ghost use Rattle.std.specs.Prelude.{◌≡◌};
ghost use Rattle.records.specs.Readings.{reading};
ghost use Rattle.cases.specs.Reading.{outcome};

use records::fault::ReadFault;
use records::reader::Reader;

/// Reads a whole file: the number of its records, or the fault that reading meets.
pub fn read_through(file: &[u8]) -> Result<usize, ReadFault>
    ensures { result ≡ outcome 0 (reading file.now) }
{
    let mut reader = Reader::open(file)?;
    let mut count = 0;
    while let Some(_) = reader.next()? {
        count += 1;
    }
    Ok(count)
}
