// The numbers that stand, as marks by number: one look tells whether a number stands, where a list would be searched.

ghost use Rattle.std.specs.Prelude.{◌≡◌, true, false, get_or, set};

// Whether the number is marked; one past the marks is not.
pub fn marked(marks: &[bool], number: u16) -> bool
    ensures { result ≡ get_or marks.now number false }
{
    let at = number as usize;
    at < marks.len() && marks[at]
}

// The number marked; one past the marks changes nothing.
pub fn mark(marks: &mut [bool], number: u16)
    ensures { marks.new ≡ set marks.old number true }
{
    let at = number as usize;
    if at < marks.len() {
        marks[at] = true;
    }
}
