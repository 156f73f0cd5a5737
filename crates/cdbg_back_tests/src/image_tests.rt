//! Two images as a separate program in Python spells them, what they say, and what altered and truncated bytes are
//! refused for.

mod reading;
mod samples;
