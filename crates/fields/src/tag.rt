// The tags of house files.
ghost use Rattle.std.specs.Prelude.{◌≡◌};
ghost use Rattle.fields.specs.Tags.{tag_number};

#[derive(Clone, Copy, PartialEq, Eq)]
pub enum Tag {
    Version = 1,
    Sinks,
    Joins,
    Places,
    Wires,
}

impl Tag {
    // All tags, in the order of a file.
    pub const ALL: [Tag; 5] = [
        Tag::Version,
        Tag::Sinks,
        Tag::Joins,
        Tag::Places,
        Tag::Wires,
    ];

    pub fn byte(self) -> u8
        ensures { result ≡ tag_number self }
    {
        self as u8
    }
}
