//! The cases by their first words.

use crate::reading::add_read;
use crate::writing::add_written;
use cases_text::{Cases, put, split_word};
use osgi_ops::MAX_LANES;
use std::alloc::{AllocError, Global};

#[derive(Drop)]
pub struct ConsoleCases;

impl Cases for ConsoleCases {
    fn add_answer(
        &mut self,
        alloc: Global,
        out: &mut String,
        case: &str,
    ) -> Result<(), AllocError> {
        let (word, text) = split_word(case);
        if word == "read" {
            add_read(alloc, out, text, 0)
        } else if word == "lanes" {
            add_read(alloc, out, text, MAX_LANES)
        } else if word == "write" {
            add_written(alloc, out, text)
        } else {
            put(out, "no such case")
        }
    }
}
