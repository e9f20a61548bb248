use crate::hex::{Hex, unhex};
use std::test::Fail;

#[test]
fn reads_small_letters_and_great_ones(rt: HostRuntime) -> Result<(), Fail> {
    let Some(bytes) = unhex(rt.alloc(), "00aF9fC1")? else {
        return Err(Fail::new("no bytes"));
    };
    assert_eq!(rt; bytes.as_slice(), [0x00, 0xaf, 0x9f, 0xc1].as_slice());
    let text = format!(in rt.alloc(); "{}", Hex(&bytes))?;
    assert_eq!(rt; text.as_str(), "00af9fc1");
    assert!(rt; unhex(rt.alloc(), "")?.is_some_and(|bytes| bytes.is_empty()));
    assert!(rt; unhex(rt.alloc(), "0")?.is_none());
    assert!(rt; unhex(rt.alloc(), "0g")?.is_none());
    Ok(())
}
