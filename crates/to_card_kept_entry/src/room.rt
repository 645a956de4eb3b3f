// The strings and names of a JSON value have no more bytes than its text: laws alone, for the room that an entry of vCardProps takes. With five bytes
// for the name VALUE the strings of an entry fit 65,541 bytes.
