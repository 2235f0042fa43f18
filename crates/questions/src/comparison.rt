// How state names are compared.
ghost use Rattle.std.specs.Prelude.{◌<◌};

// The base of their numbers, and how many false alarms are allowed: names that the table shows and that yet did not come before.
#[derive(Clone, Copy)]
pub struct Comparison {
    pub base: usize,
    pub allowed: usize,
    ghost small: { base < 2147483648 },
    ghost some: { 0 < allowed },
}
