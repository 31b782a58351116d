// Why an image is refused: a case for each of the verdict's codes 2 to 9 and 23; `specs/Fault.antt` has the numbers.
#[derive(Clone, Copy)]
pub enum Fault {
    // The image is empty or longer than the limit.
    Size,
    // The length of a record is cut short, below 2 or past the end of the image.
    Length,
    // The kind of a record is unknown, misplaced, repeated too often, or missing at the end of the image.
    Kind,
    // A body is too short or too long for its counts, or a formula has not 1 to 255 bytes.
    Body,
    // A number is outside its range, an unused field is not 0, or the header's threads are not those of the thread records.
    Number,
    // The bytes of a formula are malformed.
    Formula,
    // A formula has the wrong sort where it is used, or has start, a word or a flag where it may not.
    Sort,
    // An instruction names another thread's register.
    Owner,
    // The operand of an exchange or a fetch-add names its result register.
    Operand,
}

// The first fault of an image, and the record that has it: 0 for the image as a whole.
#[derive(Clone, Copy)]
pub struct Refusal {
    pub fault: Fault,
    pub record: usize,
}
