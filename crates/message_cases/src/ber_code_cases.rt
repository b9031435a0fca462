//! Where a name is read and nothing is changed. Integers, lengths and names in messages are next to the program
//! `message_lines`.

use ber_code::*;
use sig_types::Octets;

#[test]
fn name_is_read_over_another_and_refused_to_nothing(rt: HostRuntime) {
    let mut name = Oid::new();
    let _ = name.try_extend_from_slice(&[2, 5, 29, 15]);
    assert!(rt; matches!(read_oid_into(&[6, 2, 0x2a, 3, 9], &mut name), Some([9])));
    assert!(rt; name.as_slice() == [1, 2, 3].as_slice());
    assert!(rt; read_oid_into(&[6, 3, 0x2a, 3, 0x81], &mut name).is_none());
    assert!(rt; name.is_empty());
}

#[test]
fn octets_without_room_change_nothing(rt: HostRuntime) {
    let mut out = Octets::new();
    assert!(rt; write_octets(&[1; 1465], &mut out).is_ok());
    assert!(rt; write_octets(&[1, 2], &mut out) == Err(Full));
    assert!(rt; out.len() == 1469);
    assert!(rt; write_octets(&[1], &mut out).is_ok());
    assert!(rt; matches!(read_octets(&out), Some((octets, [4, 1, 1])) if octets.len() == 1465));
}
