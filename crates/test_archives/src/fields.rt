// Known bytes.
use given_parts::all_told;
use std::alloc::{AllocError, Global};
use std::test::Fail;
use xa_fields::{
    append_text, append_u8, append_u32, append_u64, put_text, put_u32, put_u64, take_text, take_u8,
    take_u32, take_u64,
};

fn put_fields(alloc: Global, out: &mut Vec<u8>) -> Result<(), AllocError> {
    put_u32(alloc, out, 14)?;
    put_u64(alloc, out, 48)?;
    put_text(alloc, out, "db")
}

fn append_fields(out: &mut Vec<u8>) -> Result<(), AllocError> {
    for byte in [0, 0, 0, 14] {
        append_u8(out, byte)?;
    }
    append_u64(out, 48)?;
    append_u32(out, 2)?;
    append_u8(out, b'd')?;
    append_u8(out, b'b')
}

const FIELDS: &[u8] = b"\0\0\0\x0e\0\0\0\0\0\0\0\x30\0\0\0\x02db";

fn are_put(alloc: Global) -> bool {
    let mut out = Vec::new(alloc);
    put_fields(alloc, &mut out).is_ok() && out.as_slice() == FIELDS
}

fn are_appended(alloc: Global) -> bool {
    let mut out = Vec::new(alloc);
    append_fields(&mut out).is_ok() && out.as_slice() == FIELDS
}

fn are_numbers_taken() -> bool {
    take_u32(FIELDS, 0) == Some((14, 4))
        && take_u64(FIELDS, 4) == Some((48, 12))
        && take_u8(FIELDS, 17) == Some((b'b', 18))
}

/// Whether too few bytes, and bytes that are no text, are no field.
fn are_no_fields() -> bool {
    take_u32(b"\0\0\0", 0).is_none()
        && take_u64(b"\0\0\0\0\0\0\0\x30", 1).is_none()
        && take_u8(b"", 0).is_none()
        && take_text(b"\0\0\0\x02\xff\xfe", 0).is_none()
}

#[test]
fn numbers_and_texts_are_big_endian(rt: HostRuntime) -> Result<(), Fail> {
    all_told(&[
        ("numbers", are_numbers_taken()),
        ("a text", take_text(FIELDS, 12) == Some(("db", 18))),
        ("fields that are put", are_put(rt.alloc())),
        ("fields that are appended", are_appended(rt.alloc())),
        ("no field", are_no_fields()),
    ])
}
