// Strings of a JSON text one after the other in a lent buffer, and the values of a parameter of vCardProps as rows of a line's table.
#![tactic(auto)]

pub mod strings;

// An entry of vCardProps, [name, {parameters}, type, value], as the table of the line that it is.
pub mod table;

// The strings and names of a JSON value have no more bytes than its text: laws alone, for the room that an entry of vCardProps takes. With five bytes
pub mod room;

// An entry of vCardProps, [name, {parameters}, type, value], as the table of the line that it is.
pub mod entry;

// An entry of vCardProps, decoded into a lent buffer and laid out as the table of the line that it is.
pub mod fill;

// A kept line written from its table of places: group, name, parameters and value, folded as they go, as much of it as the room holds.
pub mod writing;
