// A field where it stands, and the fields that are left of a row.
ghost use Rattle.std.specs.Prelude.{◌≡◌, ◌+◌, ◌^◌, ◌<◌, true, length};
ghost use Rattle.fields.specs.Field.{whole};

// A whole field: its place, and the part of the file that starts with it.
#[derive(Clone, Copy)]
pub struct Field<'a> {
    pub place: usize,
    pub part: &'a [u8],
    ghost there: { whole part.now ≡ true },
    ghost inside: { place + length part.now < 2 ^ 64 },
}

// The fields that are left of a row, the next one at a place.
#[derive(Clone, Copy)]
pub struct Fields<'a> {
    pub place: usize,
    pub rest: &'a [u8],
    ghost inside: { place + length rest.now < 2 ^ 64 },
}
