//! Numbers of variables, fields and slots, as C gives them.
ghost use Rattle.std.specs.Prelude.{◌≡◌, ◌<◌, ◌≤◌};
ghost use Rattle.managed_heap_c.specs.Bytes.{IsByteOf};

/// The number as a byte; if it is larger, 255, which no variable and no field has.
pub fn byte_of(n: u32) -> u8
    ensures byte { IsByteOf n result }
{
    if n < 255 { n as u8 } else { 255 }
}

/// The number of a slot in 16 bits.
pub fn half_of(k: u32) -> u16
    ensures half { k < 65536 → result ≡ k }
{
    if k < 65_536 { k as u16 } else { 0 }
}

/// A variable named beside slot k, as a byte: 255 if no slot has the number k, so that the call is out of range.
pub fn byte_beside(v: u32, k: u32) -> u8
    ensures byte { k < 65536 → IsByteOf v result }
    ensures none { 65536 ≤ k → result ≡ 255 }
{
    if k < 65_536 { byte_of(v) } else { 255 }
}
