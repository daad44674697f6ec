use super::*;
use fgb_outside::RangeSource;
use std::test::Fail;

#[test]
fn an_image_is_read_byte_by_byte(rt: HostRuntime) -> Result<(), Fail> {
    let mut image = [0u8; 100];
    for at in 0..100 {
        image[at] = at as u8;
    }
    let mut client = connect_loop(rt.alloc(), &image, 1)?;
    assert_eq!(rt; client.size(), 100);
    let mut part = [0u8; 10];
    assert_eq!(rt; client.read_at(90, &mut part), Ok(()));
    assert_eq!(rt; part, [90, 91, 92, 93, 94, 95, 96, 97, 98, 99]);
    assert_eq!(rt; client.read_at(0, &mut part[..1]), Ok(()));
    assert_eq!(rt; part[0], 0);
    assert_eq!(rt; client.asked(), [(90, 10), (0, 1)].as_slice());
    Ok(())
}

#[test]
fn an_empty_image_is_known(rt: HostRuntime) -> Result<(), Fail> {
    let client = connect_loop(rt.alloc(), b"", 7)?;
    assert_eq!(rt; client.size(), 0);
    Ok(())
}
