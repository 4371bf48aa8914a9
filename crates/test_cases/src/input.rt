// Cases from standard input, which has numbers of two bytes.
use setting::Setting;

// The next number, low byte first; where the input has ended, 0.
pub fn next(rt: &HostRuntime) -> u16 {
    let mut bytes = [0u8; 2];
    let _ = streams::fill(rt, &mut bytes, b"test_calls: cannot read standard input");
    u16::from_le_bytes(bytes)
}

// The next number, as wide as the calls take it.
pub fn wide(rt: &HostRuntime) -> usize {
    usize::from(next(rt))
}

// The next numbers, as many as out holds.
pub fn take(rt: &HostRuntime, out: &mut [u16]) {
    for number in out.iter_mut() {
        *number = next(rt);
    }
}

// The setting that a case begins with.
pub fn read_setting(rt: &HostRuntime) -> Setting {
    Setting {
        p: wide(rt),
        n: wide(rt),
        k: wide(rt),
        s: wide(rt),
        tau: wide(rt),
    }
}
