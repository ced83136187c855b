use crate::reading::bytes_of;
use crate::writing::hex_of;
use std::test::Fail;

#[test]
fn a_text_is_read_and_written(rt: HostRuntime) -> Result<(), Fail> {
    let bytes = bytes_of(rt.alloc(), b"4c 0A\t# no 57\r\nfF")?;
    assert_eq!(rt; bytes.as_slice(), [76, 10, 255].as_slice());
    let text = hex_of(rt.alloc(), bytes.as_slice())?;
    assert_eq!(rt; text.as_str(), "4C0AFF");
    Ok(())
}
