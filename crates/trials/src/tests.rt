// The cases that are run, with what each must give written out by hand or worked out in another way.
mod desk;
mod dice;
mod four_states;
mod marks;
mod model;
mod performs;
mod refusals;
mod small_maps;
mod witnesses;
