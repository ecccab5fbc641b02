//! Files as the programs take them.
#![tactic(auto)]

ghost use Rattle.std.specs.Prelude.{◌≡◌, [], OnOk, IfErr, IsOkAnd};
ghost use Rattle.std.specs.IoError.{error_kind};
ghost use Rattle.std.specs.declared.io.ErrorKind.TheVariants.{NotFound};

use std::alloc::Global;
use std::io;
use std::io::ErrorKind;

/// The bytes that were read of a file, none where there is no such file.
pub fn none_if_missing(read: io::Result<Vec<u8>>, heap: Global) -> io::Result<Vec<u8>>
    ensures read { OnOk read (result ≡ read) }
    ensures missing { IfErr read (λ error. error_kind error ≡ NotFound → IsOkAnd result (λ bytes. bytes.items ≡ [])) }
    ensures failed { IfErr read (λ error. (error_kind error ≡ NotFound → ⊥) → result ≡ read) }
{
    match read {
        Err(error) if error.kind() == ErrorKind::NotFound => Ok(Vec::new(heap)),
        answer => answer,
    }
}
