// A page plane that is moved into the frame.
use crate::Sides;

// Its dots, what added dots are, the sides, and the shear of each page column and of each frame row.
#[derive(Clone, Copy, Debug, PartialEq, Eq)]
pub struct PagePlane<'a> {
    pub page: &'a [u8],
    pub fill: u8,
    pub sides: Sides,
    pub shear: &'a [u32],
    pub shear_x: &'a [u32],
}
