mod decisions;
mod examples;
mod reading;
mod trees;
