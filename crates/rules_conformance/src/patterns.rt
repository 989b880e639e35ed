mod all_splits;
mod matching;
mod reading;
mod templates;
