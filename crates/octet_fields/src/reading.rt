//! Fields at the front of octets, each with the octets after it. Nothing here takes memory.

ghost use Rattle.std.specs.Prelude.{◌≡◌, ◌≤◌, ◌==◌, ℕ, List, [], length, position, IfOk, MatchOption, MatchResult};
ghost use Rattle.octet_fields.specs.Texts.{IsText};
ghost use Rattle.octet_fields.specs.Kinds as kinds;
ghost use Rattle.octet_fields.specs.Reading as spec;

use crate::defect::Defect;

/// A number of one octet. Cut if there is none.
#[tactic(auto, unfolding(crate::specs::Reading::number_at, crate::specs::Reading::content_at))]
pub fn octet_at(octets: &[u8]) -> Result<(u8, &[u8]), Defect>
    ensures read { spec.IsRead (λ x. (x.0, x.1.now)) result (spec.number_at kinds.One octets.now) }
    ensures any { spec.IsRead (λ x. (x.0, x.1.now)) result
        (spec.content_at (kinds.Number kinds.One kinds.any) octets.now) }
{
    let [a, rest @ ..] = octets else {
        return Err(Defect::Cut);
    };
    Ok((*a, rest))
}

/// A number of two octets, the highest first. Cut if there are fewer.
#[tactic(auto, unfolding(crate::specs::Reading::number_at, crate::specs::Reading::content_at))]
pub fn u16_at(octets: &[u8]) -> Result<(u16, &[u8]), Defect>
    ensures read { spec.IsRead (λ x. (x.0, x.1.now)) result (spec.number_at kinds.Two octets.now) }
    ensures any { spec.IsRead (λ x. (x.0, x.1.now)) result
        (spec.content_at (kinds.Number kinds.Two kinds.any) octets.now) }
{
    let [a, b, rest @ ..] = octets else {
        return Err(Defect::Cut);
    };
    Ok((u16::from_be_bytes([*a, *b]), rest))
}

/// A number of four octets, the highest first. Cut if there are fewer.
#[tactic(auto, unfolding(crate::specs::Reading::number_at, crate::specs::Reading::content_at))]
pub fn u32_at(octets: &[u8]) -> Result<(u32, &[u8]), Defect>
    ensures read { spec.IsRead (λ x. (x.0, x.1.now)) result (spec.number_at kinds.Four octets.now) }
    ensures any { spec.IsRead (λ x. (x.0, x.1.now)) result
        (spec.content_at (kinds.Number kinds.Four kinds.any) octets.now) }
{
    let [a, b, c, d, rest @ ..] = octets else {
        return Err(Defect::Cut);
    };
    Ok((u32::from_be_bytes([*a, *b, *c, *d]), rest))
}

/// A number of eight octets, the highest first. Cut if there are fewer.
#[tactic(auto, unfolding(crate::specs::Reading::number_at, crate::specs::Reading::content_at))]
pub fn u64_at(octets: &[u8]) -> Result<(u64, &[u8]), Defect>
    ensures read { spec.IsRead (λ x. (x.0, x.1.now)) result (spec.number_at kinds.Eight octets.now) }
    ensures any { spec.IsRead (λ x. (x.0, x.1.now)) result
        (spec.content_at (kinds.Number kinds.Eight kinds.any) octets.now) }
{
    let [a, b, c, d, e, f, g, h, rest @ ..] = octets else {
        return Err(Defect::Cut);
    };
    let number = u64::from_be_bytes([*a, *b, *c, *d, *e, *f, *g, *h]);
    Ok((number, rest))
}

/// The place of the first zero octet.
fn first_zero(octets: &[u8]) -> Option<usize>
    ensures { result ≡ position (λ octet. octet == 0) octets.now }
{
    octets.iter().position(|octet| *octet == 0)
}

/// A C-octet string (SMPP 3.4, section 3.1): the octets before the first zero, which stands among the next `limit`. Long
/// if so many octets stand there and none is zero, and Cut if there are not so many.
#[tactic(auto, unfolding(crate::specs::Reading::text_at, crate::specs::Reading::content_at))]
pub fn text_at(limit: usize, octets: &[u8]) -> Result<(&[u8], &[u8]), Defect>
    ensures read { spec.IsRead (λ x. (x.0.now, x.1.now)) result (spec.content_at (kinds.Text limit) octets.now) }
    ensures text { IfOk result (λ x. IsText limit x.0.now) }
{
    let near = &octets[..limit.min(octets.len())];
    match first_zero(near) {
        Some(place) => Ok((&octets[..place], &octets[place + 1..])),
        None if limit <= octets.len() => Err(Defect::Long),
        None => Err(Defect::Cut),
    }
}

/// So many octets. Long if they are more than `most`, and Few if there are not so many.
#[tactic(auto, unfolding(crate::specs::Reading::taken_at))]
fn taken_at(most: usize, count: usize, octets: &[u8]) -> Result<(&[u8], &[u8]), Defect>
    ensures few { IfOk result (λ x. length x.0.now ≤ most) }
    ensures read { spec.IsRead (λ x. (x.0.now, x.1.now)) result (spec.taken_at most count octets.now) }
{
    if count > most {
        return Err(Defect::Long);
    }
    if octets.len() < count {
        return Err(Defect::Few);
    }
    Ok(octets.split_at(count))
}

/// Octets after their number, which has one octet: Cut if there is none, Long if the number is above `most`, and Few if
/// fewer octets follow.
#[tactic(auto, unfolding(crate::specs::Reading::content_at))]
pub fn counted_at(most: usize, octets: &[u8]) -> Result<(&[u8], &[u8]), Defect>
    ensures read { spec.IsRead (λ x. (x.0.now, x.1.now)) result (spec.counted_at kinds.One most octets.now) }
    ensures any { spec.IsRead (λ x. (x.0.now, x.1.now)) result
        (spec.content_at (kinds.Counted kinds.One most kinds.any) octets.now) }
    ensures few { IfOk result (λ x. length x.0.now ≤ most) }
{
    let (count, rest) = octet_at(octets)?;
    let counted = taken_at(most, count as usize, rest)?;
    Ok(counted)
}

/// Octets after their number, which has two octets: Cut if there are fewer, Long if the number is above `most`, and Few
/// if fewer octets follow.
#[tactic(auto, unfolding(crate::specs::Reading::content_at))]
pub fn long_counted_at(most: usize, octets: &[u8]) -> Result<(&[u8], &[u8]), Defect>
    ensures read { spec.IsRead (λ x. (x.0.now, x.1.now)) result (spec.counted_at kinds.Two most octets.now) }
    ensures any { spec.IsRead (λ x. (x.0.now, x.1.now)) result
        (spec.content_at (kinds.Counted kinds.Two most kinds.any) octets.now) }
    ensures few { IfOk result (λ x. length x.0.now ≤ most) }
{
    let (count, rest) = u16_at(octets)?;
    let counted = taken_at(most, count as usize, rest)?;
    Ok(counted)
}

/// An optional parameter (SMPP 3.4, section 3.2.4.1): its tag and its value; none if it is cut.
#[tactic(auto, unfolding(crate::specs::Reading::tlv_at))]
pub fn tlv_at(octets: &[u8]) -> Option<(u16, &[u8], &[u8])>
    ensures { MatchOption result
        (spec.tlv_at octets.now ≡ None)
        (λ x. spec.tlv_at octets.now ≡ Some ((x.0, x.1.now), x.2.now)) }
{
    let [a, b, c, d, rest @ ..] = octets else {
        return None;
    };
    let count = u16::from_be_bytes([*c, *d]) as usize;
    if rest.len() < count {
        return None;
    }
    let (value, rest) = rest.split_at(count);
    Some((u16::from_be_bytes([*a, *b]), value, rest))
}

/// Optional parameters up to the end, and nothing after them. Long if their octets are more than `most`, and Cut if one of
/// them is.
#[tactic(auto, unfolding(crate::specs::Reading::parameters_at, crate::specs::Reading::content_at))]
pub fn check_parameters(most: usize, octets: &[u8]) -> Result<(), Defect>
    ensures { MatchResult result
        (λ _. (tlvs : List (ℕ × List ℕ)) × (spec.content_at (kinds.Parameters most) octets.now ≡ Ok (tlvs, [])))
        (λ defect. spec.content_at (kinds.Parameters most) octets.now ≡ Err defect) }
{
    if octets.len() > most {
        return Err(Defect::Long);
    }
    let mut rest = octets;
    while let Some((_, _, after)) = tlv_at(rest) {
        rest = after;
    }
    if !rest.is_empty() {
        return Err(Defect::Cut);
    }
    Ok(())
}

/// No octet. Extra if there is one.
pub fn nothing_at(octets: &[u8]) -> Result<(), Defect>
    ensures { spec.IsRead (λ x. x) result (spec.nothing_at Defect.Extra octets.now) }
{
    if octets.is_empty() {
        Ok(())
    } else {
        Err(Defect::Extra)
    }
}
