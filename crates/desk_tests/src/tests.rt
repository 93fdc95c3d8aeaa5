//! The tests, and what they share.
mod books;
mod calls;
mod cuts;
mod health;
mod leases;
mod openings;
mod reloads;
mod scripts;
mod segments;
mod servers;
mod threads;
