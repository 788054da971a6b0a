//! Tests of the crates of pages and of trees, by their public calls: pages by hand from the tables of the format, and a file of the real product.
#![tactic(auto)]

#[cfg(test)]
mod building;
#[cfg(test)]
mod cache;
#[cfg(test)]
mod cells;
#[cfg(test)]
mod found_rows;
#[cfg(test)]
mod free_pages;
#[cfg(test)]
mod header;
#[cfg(test)]
mod real_pages;
#[cfg(test)]
mod records;
#[cfg(test)]
mod source;
#[cfg(test)]
mod varint;
#[cfg(test)]
mod walking;
#[cfg(test)]
mod whole_file;
