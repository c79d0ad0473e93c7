//! A line's answer, by its first word.

use crate::clauses::{clauses, read_clauses};
use crate::filters::{filter, nested};
use crate::headers::{headers, long_lines};
use crate::qualifiers::qualifier;
use crate::ranges::{at_least_zero, range, within};
use crate::trees::tree;
use crate::versions::{numbered, order, version};
use crate::words::word_read;
use cases_text::{Cases, bytes_of, split_word};
use std::alloc::{AllocError, Global};

/// Readers, each asked by the word that a case begins with.
#[derive(Drop)]
pub struct ReaderCases;

impl Cases for ReaderCases {
    fn add_answer(
        &mut self,
        alloc: Global,
        out: &mut String,
        case: &str,
    ) -> Result<(), AllocError> {
        let (word, text) = split_word(case);
        if word == "order" {
            order(alloc, out, text)
        } else if word == "within" {
            within(alloc, out, text)
        } else if word == "long-lines" {
            long_lines(alloc, out, text)
        } else if word == "nested" {
            nested(alloc, out, text)
        } else {
            add_read(alloc, out, word, bytes_of(alloc, text)?.as_slice())
        }
    }
}

/// Adds what a whole text is read as.
fn add_read(alloc: Global, out: &mut String, word: &str, text: &[u8]) -> Result<(), AllocError> {
    if word == "version" {
        version(alloc, out, text)
    } else if word == "range" {
        range(alloc, out, text)
    } else if word == "at-least-zero" {
        at_least_zero(alloc, out, text)
    } else if word == "numbered" {
        numbered(alloc, out, text)
    } else if word == "qualifier" {
        qualifier(alloc, out, text)
    } else if word == "headers" {
        headers(alloc, out, text)
    } else if word == "clauses" {
        clauses(alloc, out, text)
    } else if word == "read-clauses" {
        read_clauses(alloc, out, text)
    } else if word == "filter" {
        filter(alloc, out, text)
    } else if word == "tree" {
        tree(alloc, out, text)
    } else {
        word_read(alloc, out, word, text)
    }
}
