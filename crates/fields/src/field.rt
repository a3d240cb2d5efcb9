// Fields: a one-byte tag, a two-byte length, the value.
ghost use Rattle.std.specs.Prelude.{◌≡◌, ◌∷◌, ◌+◌, ◌≤◌, ◌<◌, length};
ghost use Rattle.text.specs.Written.{Room, Writes};
ghost use Rattle.fields.specs.Bytes.{big};
ghost use Rattle.fields.specs.Tags.{tag_number};
ghost use Rattle.fields.specs.Form.{wrong_length, next_at, body_at, field_at, form, past, value_of, Formed};

use crate::number::Number;
use crate::tag::Tag;
use plane::refusal::Refusal;
use text::page::Page;

fn is_wrong_length(tag: Tag, long: u16) -> bool
    ensures { result ≡ wrong_length (tag_number tag) long }
{
    match tag {
        Tag::Version => long != 1,
        Tag::Sinks => long % 8 != 0,
        Tag::Joins => long % 4 != 0,
        Tag::Places => long % 8 != 0,
        Tag::Wires => long % 4 != 0,
    }
}

// The byte after the field at `at`.
fn next_at(file: &[u8], at: usize) -> usize
    requires { at + 3 ≤ length file.now }
    ensures { result ≡ next_at file.now at }
{
    at + 3 + usize::from(u16::read(file, at + 1))
}

// The byte after the field that is due at byte `at`, whose header is whole and bears its tag.
#[tactic(auto, using(crate::proofs::Tags::other), unfolding(crate::specs::Form::body_at))]
fn read_value(file: &[u8], at: usize, tag: Tag) -> Result<usize, Refusal>
    requires { at + 3 ≤ length file.now }
    ensures { result ≡ body_at file.now at (tag_number tag) }
{
    if is_wrong_length(tag, u16::read(file, at + 1)) {
        return Err(Refusal::Form(at));
    }
    let next = next_at(file, at);
    if file.len() < next {
        return Err(Refusal::Form(at));
    }
    if let Tag::Version = tag {
        if file[at + 3] != 1 {
            return Err(Refusal::Form(at));
        }
    }
    Ok(next)
}

// The byte after the field that is due at byte `at`.
#[tactic(auto, unfolding(crate::specs::Form::field_at))]
fn read_field(file: &[u8], at: usize, tag: Tag) -> Result<usize, Refusal>
    ensures { result ≡ field_at file.now at (tag_number tag) }
{
    let n = file.len();
    if n <= at {
        return Err(Refusal::Form(n));
    }
    if file[at] != tag.byte() {
        return Err(Refusal::Form(at));
    }
    if n - at < 3 {
        return Err(Refusal::Form(n));
    }
    read_value(file, at, tag)
}

// Number 8 for a file with the tags up to `last`.
pub fn check_form(file: &[u8], last: Tag) -> Result<(), Refusal>
    ensures { result ≡ form (tag_number last) file.now }
{
    let mut at = 0;
    for tag in &Tag::ALL[..usize::from(last.byte())] {
        at = read_field(file, at, *tag)?;
    }
    if at < file.len() {
        Err(Refusal::Form(at))
    } else {
        Ok(())
    }
}

// The byte after the first k fields.
#[tactic(auto, using(crate::proofs::Scan::past_more), unfolding(crate::specs::Form::past))]
fn past_fields(file: &[u8], k: usize) -> usize
    requires { Formed k file.now }
    ensures { result ≡ past file.now k }
{
    let mut at = 0;
    for _ in 0..k {
        at = next_at(file, at);
    }
    at
}

// The value of a tag.
#[tactic(auto, using(crate::proofs::Tags::some, crate::proofs::Scan::formed_next))]
pub fn value(file: &[u8], tag: Tag) -> &[u8]
    requires { Formed (tag_number tag) file.now }
    ensures { result.now ≡ value_of file.now (tag_number tag) }
{
    let at = past_fields(file, usize::from(tag.byte() - 1));
    &file[at + 3..next_at(file, at)]
}

// The tag and the length of a field.
pub fn put_header(page: &mut Page, tag: Tag, long: u16)
    requires { Room page.old (tag_number tag ∷ big 2 long) }
    ensures { Writes (tag_number tag ∷ big 2 long) page.old page.new }
{
    page.byte(tag.byte());
    long.put(page);
}
