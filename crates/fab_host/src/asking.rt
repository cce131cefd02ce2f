// What a host keeps of the calls that were asked of it.
ghost use Rattle.std.specs.Prelude.{◌≡◌, [], ◌∷◌, ◌++◌, IfOk, OnOk, OnErr, IsOkUnless};

use crate::hosts::Asked;
use fab_base::Bytes;
use fab_io::IoFault;
use std::alloc::Global;

// A copy of a name.
pub fn name_of(alloc: Global, name: &str) -> Result<Bytes, IoFault>
    ensures ok { IfOk result (λ made. made ≡ name.now) }
    ensures err { IsOkUnless result IoFault.NoMemory }
{
    Ok(Bytes::from_vec(Vec::from_slice(alloc, name.as_bytes())?))
}

// One more call was asked.
pub fn ask(asked: &mut Vec<Asked>, call: Asked) -> Result<(), IoFault>
    ensures ok { OnOk result (asked.new.items ≡ asked.old.items ++ call ∷ []) }
    ensures err { OnErr result (asked.new.items ≡ asked.old.items) }
    ensures only { IsOkUnless result IoFault.NoMemory }
{
    asked.reserve(1)?;
    asked.push(call).unwrap();
    Ok(())
}
