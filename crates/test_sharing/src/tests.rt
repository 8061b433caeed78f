//! The tests, each of which opens a world.

mod agreeing;
mod crew;
mod logs;
mod map;
mod players;
mod queue;
mod roles;
mod torture;
mod walking;
