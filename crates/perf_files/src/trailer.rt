//! What records of the kernel that aren't samples end in.

ghost use Rattle.std.specs.Prelude.{◌≡◌, ◌*◌, ◌≤◌, Ok, Err, IfOk, IfErr};
ghost use Rattle.perf_files.specs.Trailers.{body_of, split_payload, trailer_of, trailer_size};

use crate::attributes::Attributes;
use crate::error::FieldError;
use crate::field::Field;
use crate::fields::Fields;
use crate::sample_head::Trailer;

// How many words records end in.
#[tactic(auto, unfolding(crate::specs::Trailers::trailer_size))]
fn trailer_words(attributes: &Attributes) -> u64
    ensures size { 8 * result ≡ trailer_size attributes.now }
    ensures few { result ≤ 6 }
{
    if !attributes.sample_id_all() {
        return 0;
    }
    let kind = attributes.sample_type;
    kind / 2 % 2
        + kind / 4 % 2
        + kind / 0x40 % 2
        + kind / 0x80 % 2
        + kind / 0x200 % 2
        + kind / 0x1_0000 % 2
}

// The bytes of a record before what it ends in, and those of that.
#[tactic(auto, unfolding(crate::specs::Trailers::split_payload))]
fn split_payload<'a>(
    payload: &'a [u8],
    attributes: &Attributes,
) -> Result<(&'a [u8], &'a [u8]), FieldError>
    ensures ok { IfOk result (λ parts. split_payload attributes.now payload.now ≡ Ok (parts.0.now, parts.1.now)) }
    ensures err { IfErr result (λ e. split_payload attributes.now payload.now ≡ Err e) }
{
    let size = 8 * trailer_words(attributes);
    if (payload.len() as u64) < size {
        return Err(FieldError::PastEnd(Field::Trailer));
    }
    Ok(payload.split_at(payload.len() - size as usize))
}

// The bytes of a record before what it ends in.
pub(crate) fn body_of<'a>(
    payload: &'a [u8],
    attributes: &Attributes,
) -> Result<&'a [u8], FieldError>
    ensures ok { IfOk result (λ body. body_of attributes.now payload.now ≡ Ok body.now) }
    ensures err { IfErr result (λ e. body_of attributes.now payload.now ≡ Err e) }
{
    let (body, _trailer) = split_payload(payload, attributes)?;
    Ok(body)
}

/// What a record of the kernel that isn't a sample ends in, by its payload and the attributes of its event (`sample_id_all`). Fails if
/// it goes past the end.
#[tactic(auto, unfolding(crate::specs::Trailers::trailer_of))]
pub fn trailer_of(payload: &[u8], attributes: &Attributes) -> Result<Trailer, FieldError>
    ensures { result ≡ trailer_of attributes.now payload.now }
{
    if !attributes.sample_id_all() {
        return Ok(Trailer {
            thread: None,
            time: None,
            id: None,
            stream_id: None,
            cpu: None,
            identifier: None,
        });
    }
    let (_body, trailer) = split_payload(payload, attributes)?;
    let mut fields = Fields { left: trailer };
    fields.trailer(attributes)
}
