// What is exported to C: each function calls the one of the same name in `host` and promises what that one does. What has a fixed length crosses as a plain pointer, any other list as a pointer and its length.
#![tactic(auto)]

mod arrivals;
mod lengths;
mod line;
mod pages;
mod pair;
mod sessions;
mod texts;
mod version;
mod words;
