// What asks that the rows hold a pool of contours in the domain.
pub mod cleaning;
pub mod sifting;
