// A place of the file at which a name is read, with the short number of that name: where two numbers differ the names do, and need
// not be read.
#[derive(Clone, Copy, Default)]
pub struct Named {
    pub number: u16,
    pub place: u16,
}
