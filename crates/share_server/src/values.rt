pub mod coming;
pub mod number;
pub mod out;
pub mod request;
