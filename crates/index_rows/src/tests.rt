use super::*;

mod indexed;
mod packed;
mod reported;
mod several;
