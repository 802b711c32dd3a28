// Appending numbers and texts.
ghost use Rattle.std.specs.Prelude.{◌≡◌, ◌<◌, ◌^◌, ◌++◌, ◌∷◌, [], length, OnOk, OnErr};
ghost use Rattle.xa_fields.specs.Spelling.{u32_bytes, u64_bytes, text_bytes};
ghost use Rattle.xa_fields.specs.declared.limits.TheConstants.{FIELD};

use std::alloc::{AllocError, Global};

/// Appends a byte.
pub fn append_u8(out: &mut Vec<u8>, v: u8) -> Result<(), AllocError>
    ensures ok { OnOk result (out.new.items ≡ out.old.items ++ v ∷ []) }
    ensures err { OnErr result (out.new.items ≡ out.old.items) }
{
    out.push(v)?;
    Ok(())
}

/// Appends four bytes, the highest first.
pub fn append_u32(out: &mut Vec<u8>, v: u32) -> Result<(), AllocError>
    ensures ok { OnOk result (out.new.items ≡ out.old.items ++ u32_bytes v) }
    ensures err { OnErr result (out.new.items ≡ out.old.items) }
{
    out.extend_from_slice(&v.to_be_bytes())
}

/// Appends eight bytes, the highest first.
pub fn append_u64(out: &mut Vec<u8>, v: u64) -> Result<(), AllocError>
    ensures ok { OnOk result (out.new.items ≡ out.old.items ++ u64_bytes v) }
    ensures err { OnErr result (out.new.items ≡ out.old.items) }
{
    out.extend_from_slice(&v.to_be_bytes())
}

/// Appends the number of the text's bytes as four bytes, and the bytes.
pub fn append_text(out: &mut Vec<u8>, v: &str) -> Result<(), AllocError>
    requires { length v.now < FIELD }
    ensures ok { OnOk result (out.new.items ≡ out.old.items ++ text_bytes v.now) }
    ensures err { OnErr result (out.new.items ≡ out.old.items) }
{
    out.reserve(4 + v.len())?;
    out.extend_from_slice(&(v.len() as u32).to_be_bytes())?;
    out.extend_from_slice(v.as_bytes())
}

/// `append_u32`. The memory is the row's own allocator's.
pub fn put_u32(_alloc: Global, out: &mut Vec<u8>, v: u32) -> Result<(), AllocError>
    ensures ok { OnOk result (out.new.items ≡ out.old.items ++ u32_bytes v) }
    ensures err { OnErr result (out.new.items ≡ out.old.items) }
{
    append_u32(out, v)
}

/// `append_u64`. The memory is the row's own allocator's.
pub fn put_u64(_alloc: Global, out: &mut Vec<u8>, v: u64) -> Result<(), AllocError>
    ensures ok { OnOk result (out.new.items ≡ out.old.items ++ u64_bytes v) }
    ensures err { OnErr result (out.new.items ≡ out.old.items) }
{
    append_u64(out, v)
}

/// `append_text`. The memory is the row's own allocator's.
pub fn put_text(_alloc: Global, out: &mut Vec<u8>, v: &str) -> Result<(), AllocError>
    requires { length v.now < FIELD }
    ensures ok { OnOk result (out.new.items ≡ out.old.items ++ text_bytes v.now) }
    ensures err { OnErr result (out.new.items ≡ out.old.items) }
{
    append_text(out, v)
}
