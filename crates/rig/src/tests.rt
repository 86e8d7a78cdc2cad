// The cases that are run, with what each must give written out by hand or worked out in another way.
mod bounds;
mod joints;
mod looks;
mod switches_model;
mod told;
mod walks;
