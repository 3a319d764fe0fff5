//! Numbers and bytes, read at the front of a payload.
ghost use Rattle.std.specs.Int.{w16, w32, w64};
ghost use Rattle.mvd_wire.specs.Codec.{Gives, Codec, byte, number, raw};

use mvd_dots::Refusal;

#[tactic(auto, unfolding(crate::specs::Codec::number))]
pub fn u16_at(bytes: &[u8]) -> Result<(u16, &[u8]), Refusal>
    ensures { Gives (λ x. (x.0, x.1.now)) result ((number w16).read bytes.now) }
{
    if bytes.len() < 2 {
        return Err(Refusal::BadBody);
    }
    let (front, rest) = bytes.split_at(2);
    Ok((u16::from_be_bytes([front[0], front[1]]), rest))
}

#[tactic(auto, unfolding(crate::specs::Codec::number))]
pub fn u32_at(bytes: &[u8]) -> Result<(u32, &[u8]), Refusal>
    ensures { Gives (λ x. (x.0, x.1.now)) result ((number w32).read bytes.now) }
{
    if bytes.len() < 4 {
        return Err(Refusal::BadBody);
    }
    let (front, rest) = bytes.split_at(4);
    let number = u32::from_be_bytes([front[0], front[1], front[2], front[3]]);
    Ok((number, rest))
}

#[tactic(auto, unfolding(crate::specs::Codec::number))]
pub fn u64_at(bytes: &[u8]) -> Result<(u64, &[u8]), Refusal>
    ensures { Gives (λ x. (x.0, x.1.now)) result ((number w64).read bytes.now) }
{
    if bytes.len() < 8 {
        return Err(Refusal::BadBody);
    }
    let (front, rest) = bytes.split_at(8);
    let number = u64::from_be_bytes([
        front[0], front[1], front[2], front[3], front[4], front[5], front[6], front[7],
    ]);
    Ok((number, rest))
}

pub fn byte_at(bytes: &[u8]) -> Result<(u8, &[u8]), Refusal>
    ensures { Gives (λ x. (x.0, x.1.now)) result (byte.read bytes.now) }
{
    match bytes {
        [] => Err(Refusal::BadBody),
        [first, rest @ ..] => Ok((*first, rest)),
    }
}

#[tactic(auto, unfolding(crate::specs::Codec::raw))]
pub fn raw_at(count: usize, bytes: &[u8]) -> Result<(&[u8], &[u8]), Refusal>
    ensures { Gives (λ x. (x.0.now, x.1.now)) result ((raw count).read bytes.now) }
{
    if bytes.len() < count {
        return Err(Refusal::BadBody);
    }
    Ok(bytes.split_at(count))
}
