//! Names of passes.

ghost use Rattle.std.specs.Prelude.{◌≡◌};
ghost use Rattle.debug_records.specs.Change.{IsPassName, letters, pass_name};

use debug_records::PassName;

/// The name of a pass of these letters, which are 1 to 16 lower-case letters.
pub fn name_of(bytes: &[u8]) -> PassName
    requires { IsPassName bytes.now }
    ensures letters { letters result ≡ bytes.now }
    ensures whole { result ≡ pass_name bytes.now }
{
    match PassName::of(bytes) {
        Some(name) => name,
        None => unreachable!(),
    }
}
