//! `cases` tells how most cases are written down as texts.
mod batches;
mod cases;
mod censuses;
mod dumps;
mod folded;
mod generated;
mod heaps;
mod refused;
mod schedules;
mod scripts;
mod streams;
mod texts;
mod words;
