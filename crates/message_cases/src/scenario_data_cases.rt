//! The octets of a frame go in and come out.

use scenario_data::FrameOctets;
use std::test::Fail;

#[test]
fn octets_are_given_back(rt: HostRuntime) -> Result<(), Fail> {
    let alloc = rt.alloc();
    let frame = FrameOctets::new(vec![in alloc; 0x30, 0x82, 0xff]?);
    assert!(rt; frame.as_slice() == [0x30, 0x82, 0xff].as_slice());
    let octets = frame.into_vec();
    assert!(rt; octets.as_slice() == [0x30, 0x82, 0xff].as_slice());
    Ok(())
}
