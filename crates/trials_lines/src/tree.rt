// Lines of the bookmark tree.
mod changes;
mod ids;
mod large;
mod moves;
mod pages;
mod refusals;
mod tags;
