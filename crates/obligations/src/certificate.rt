// A well-formed image with the marks of its justified lines, on which obligations and claims are judged.
use image_access::totals::Counted;

#[derive(Clone, Copy)]
pub struct Certificate<'a> {
    pub records: &'a Counted<'a>,
    pub marks: &'a [bool],
}
