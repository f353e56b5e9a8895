ghost use Rattle.text.specs.Fields.{Printable};

// Fields of a time, in the Rust's types. Month 0 is January, weekday 0 Sunday.
#[derive(Clone, Copy)]
pub struct DateFields {
    pub year: i32,
    pub month: u8,
    pub date: u8,
    pub hour: u8,
    pub minute: u8,
    pub second: u8,
    pub weekday: u8,
    pub ms: u16,
    pub ghost printable: { Printable year month date hour minute second ms weekday },
}
