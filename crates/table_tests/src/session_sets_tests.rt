//! That a set has what was put into it and not taken out, in order.

use session_sets::{first_from, has, with, without};

// Whether the set has these sessions and no others.
fn is_set(bits: u64, sessions: &[u32]) -> bool {
    let mut from = 0;
    for session in sessions {
        if !has(bits, session % 64) || first_from(bits, from) != Some(*session) {
            return false;
        }
        from = session.saturating_add(1);
    }
    first_from(bits, from).is_none()
}

#[test]
fn sessions_come_and_go(rt: HostRuntime) {
    let mut bits = 0;
    assert!(rt; is_set(bits, &[]));
    for session in [63, 0, 31, 32, 0] {
        bits = with(bits, session);
    }
    assert!(rt; is_set(bits, &[0, 31, 32, 63]));
    for session in [31, 1, 63] {
        bits = without(bits, session);
    }
    assert!(rt; is_set(bits, &[0, 32]) && !has(bits, 31));
    assert!(rt; first_from(bits, 33).is_none() && first_from(bits, 64).is_none());
}
